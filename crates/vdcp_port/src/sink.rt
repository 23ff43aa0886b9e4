//! A vector or an array to which answers are appended.
use arrayvec::ArrayVec;
use std::alloc::Allocator;

pub(crate) trait Sink {
    ghost use Rattle.std.specs.Prelude.{ℕ, ◌≡◌, ◌+◌, ◌≤◌, ◌++◌, List, length};

    ghost written: { Self → List ℕ };

    ghost room: { Self → ℕ };

    fn append(&mut self, bytes: &[u8])
        requires { length bytes.now ≤ room self.old }
        ensures written { written self.new ≡ written self.old ++ bytes.now }
        ensures room { room self.old ≤ room self.new + length bytes.now };
}

impl<A: Allocator> Sink for Vec<u8, A> {
    ghost use Rattle.std.specs.Prelude.{◌-◌};
    ghost use Rattle.std.specs.Vec.{vec_len, vec_capacity};

    ghost written = { λ v. v.items };

    ghost room = { λ v. vec_capacity v - vec_len v };

    fn append(&mut self, bytes: &[u8]) {
        self.extend_from_slice(bytes).unwrap();
    }
}

impl<const N: usize> Sink for ArrayVec<u8, N> {
    ghost use Rattle.std.specs.Prelude.{◌-◌};
    ghost use Rattle.arrayvec.specs.ArrayVec.{array_vec_len};

    ghost written = { λ v. v.items };

    ghost room = { λ v. N - array_vec_len v };

    fn append(&mut self, bytes: &[u8]) {
        // So the prover knows that it holds N bytes at most.
        let _ = self.len();
        self.try_extend_from_slice(bytes).unwrap();
    }
}
