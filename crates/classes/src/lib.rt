// A class by the home of its package and its number there. What functions over it require and ensure, and the laws of its record, its kind
// and its parents; no functions.
#![tactic(auto)]

use homes::Home;

// A class by its package's home and its number there.
#[derive(Clone, Copy, PartialEq, Eq)]
pub struct ClassSpot {
    pub home: Home,
    pub number: usize,
}
