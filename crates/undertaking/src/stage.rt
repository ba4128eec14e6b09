// Requests to make of a site from its opening, with the room that they need, made before.
ghost use Rattle.std.specs.Prelude.{◌≡◌, ◌≤◌, vec_len, vec_capacity};

use crate::answer::Answer;
use gate::Plot;

// There is room for `most` requests and their answers: a number of run time, so no Reserve, and the very number that was asked for,
// where a list may have room for more.
#[derive(Drop)]
pub struct Stage<R: Drop> {
    pub(crate) plot: Plot,
    pub(crate) most: usize,
    pub(crate) requests: Vec<R>,
    pub(crate) answers: Vec<Answer>,
    ghost few_requests: { vec_len requests ≤ most },
    ghost requests_fit: { most ≤ vec_capacity requests },
    ghost no_answers: { vec_len answers ≡ 0 },
    ghost answers_fit: { most ≤ vec_capacity answers },
}
