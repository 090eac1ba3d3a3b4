// A value in two parts: a leading part, and what is left of it, not added together.

#[derive(Clone, Copy)]
pub struct Pair {
    pub hi: f64,
    pub lo: f64,
}
