// The six columns: for each field a board, its engine and the labels of its values. All that differs from field to field is here.
use fields::flags::FlagMask;
use fields::prefixes::Prefix;
use fields::protocols::Protocol;
use fields::ranges::PortRange;
use labelling::board::Board;

#[derive(Drop)]
pub struct Columns<A, B, C, D, E, F> {
    pub(crate) source: Board<Prefix, A>,
    pub(crate) destination: Board<Prefix, B>,
    pub(crate) source_port: Board<PortRange, C>,
    pub(crate) destination_port: Board<PortRange, D>,
    pub(crate) protocol: Board<Protocol, E>,
    pub(crate) flags: Board<FlagMask, F>,
}
