// What a filter got where it was labelled, in the fields or along the nodes: its labels, and how many came into use.
use fields::orders::FIELDS;

#[derive(Clone, Copy)]
pub struct Entered {
    pub labels: [u8; FIELDS],
    pub new: u8,
}
