// Making room, and filling it.
ghost use Rattle.std.specs.Prelude.{◌≡◌, ◌≤◌, IfOk, vec_len, vec_capacity};
ghost use Rattle.terms.specs.View.{room_of};

use crate::Reserve;
use std::alloc::{AllocError, Global};

impl<T: Drop, const N: usize> Reserve<T, N> {
    // Room for N values, if there is memory for it.
    pub fn new(heap: Global) -> Result<Self, AllocError>
        ensures { IfOk result (λ reserve. N ≤ room_of reserve) }
    {
        let values = Vec::with_capacity(heap, N)?;
        Ok(Reserve { values })
    }

    // The list itself, to be filled.
    pub fn into_vec(self) -> Vec<T>
        ensures none { vec_len result ≡ 0 }
        ensures room { N ≤ vec_capacity result }
        ensures same { vec_capacity result ≡ room_of self }
    {
        let Reserve { values } = self;
        values
    }
}

#[cfg(test)]
mod tests {
    use super::*;
    use std::test::Fail;

    #[test]
    fn there_is_room(rt: HostRuntime) -> Result<(), Fail> {
        let mut values = Reserve::<u8, 2>::new(rt.alloc())?.into_vec();
        assert!(rt; values.is_empty());
        assert!(rt; values.capacity() >= 2);
        values.push(7)?;
        assert_eq!(rt; values.as_slice(), [7].as_slice());
        Ok(())
    }
}
