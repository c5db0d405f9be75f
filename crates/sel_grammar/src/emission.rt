/// What an expansion is made of: a byte, or a temporary by its number, from 1 in each tree. A
/// temporary is printed as `t` and its number.
#[derive(Clone, Copy, Debug, PartialEq, Eq)]
pub enum Emitted {
    Byte(u8),
    Temporary(u64),
}
