// Labels of nodes.
/// The number of a state, or the place of an item set that is kept until the next tree begins.
#[derive(Clone, Copy, Debug, PartialEq, Eq)]
pub enum Label {
    Numbered(u16),
    Plain(u32),
}
