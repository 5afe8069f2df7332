// On which side of a range a number lies. (`Below` is a word of the checker's.)
#[derive(Clone, Copy)]
pub enum Side {
    Beneath,
    Above,
}
