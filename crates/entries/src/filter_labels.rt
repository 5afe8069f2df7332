// The labels of a standing filter.
use fields::orders::FIELDS;

// In the fields, field 1 first, and along the nodes, behind its label in the order's first field.
#[derive(Clone, Copy, Default)]
pub struct FilterLabels {
    pub fields: [u8; FIELDS],
    pub nodes: [u8; FIELDS],
}
