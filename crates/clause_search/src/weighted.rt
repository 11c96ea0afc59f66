/// A literal, and how much it weighs if it is false.
#[derive(Debug, Clone, Copy)]
pub struct Weighted {
    pub literal: i32,
    pub weight: u32,
}
