// What is asked for: K or I.
#[derive(Clone, Copy, Debug, PartialEq, Eq)]
pub enum Kind {
    K,
    I,
}
