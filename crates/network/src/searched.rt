// What a search answers, at one node or along all of them: the labels found, and how many pairs were asked.
use labelling::found::Found;

#[derive(Clone, Copy)]
pub struct Searched {
    pub found: Found,
    pub asked: usize,
}
