// The eight calls.
use gate::Call;
use judge::Accepted;

// A call of the gate, or the playing of an accepted plan, wherever it was accepted.
#[derive(Drop)]
pub enum Deed {
    Call(Call),
    Play(Accepted),
}
