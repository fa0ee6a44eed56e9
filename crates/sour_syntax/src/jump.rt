/// Where an instruction goes by name: the places of the labels that it names, counted from 0. What is
/// kept for an instruction that names fewer labels says nothing.
#[derive(Clone, Copy, Debug, PartialEq, Eq)]
pub struct Jump {
    pub first: usize,
    pub second: usize,
}
