// How far a search has come.
#[derive(Clone, Copy, PartialEq, Eq, Debug)]
pub enum Status {
    Going,
    // The frames say which rule.
    Found,
    NoRule,
}
