// Putting requests on a stage.
ghost use Rattle.std.specs.Prelude.{◌≡◌, [], ◌∷◌, ◌++◌, length, if◌then◌else◌, nat_lt, is_ok, IfOk, IfErr, vec_len};
ghost use Rattle.undertaking.specs.View.{requests_of, room_of};

use crate::stage::Stage;
use gate::Plot;
use std::alloc::{AllocError, Global};

impl<R: Drop> Stage<R> {
    // Room for the columns of any ground, and for so many requests and their answers.
    pub fn new(heap: Global, most: usize) -> Result<Stage<R>, AllocError>
        ensures { IfOk result (λ stage. (requests_of stage ≡ []) × (room_of stage ≡ most)) }
    {
        let plot = Plot::new(heap)?;
        let requests = Vec::with_capacity(heap, most)?;
        let answers = Vec::with_capacity(heap, most)?;
        Ok(Stage {
            plot,
            most,
            requests,
            answers,
        })
    }

    // A stage with these requests, and room for no more.
    pub fn of(heap: Global, requests: Vec<R>) -> Result<Stage<R>, AllocError>
        ensures { IfOk result (λ stage. (requests_of stage ≡ requests.items) × (room_of stage ≡ vec_len requests)) }
    {
        let plot = Plot::new(heap)?;
        let answers = Vec::with_capacity(heap, requests.len())?;
        Ok(Stage {
            plot,
            most: requests.len(),
            requests,
            answers,
        })
    }

    // Puts a request below those that are there, if there is room for it; otherwise it is given back.
    pub fn add(&mut self, request: R) -> Result<(), R>
        ensures taken { is_ok result ≡ nat_lt (length (requests_of self.old)) (room_of self.old) }
        ensures requests { requests_of self.new ≡ (if is_ok result then requests_of self.old ++ request ∷ [] else requests_of self.old) }
        ensures back { IfErr result (λ back. back ≡ request) }
        ensures room { room_of self.new ≡ room_of self.old }
    {
        if self.requests.len() >= self.most {
            return Err(request);
        }
        self.requests.push_reserved(request);
        Ok(())
    }
}
