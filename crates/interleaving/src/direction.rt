// The two directions in which elements pass step 8: bits from where they stand in rows to where they are sent, soft values back.
ghost use Rattle.std.specs.Prelude.{◌≡◌, refl, ℕ, ◌<◌, List, length, slice_index_or, slice_set};
ghost use Rattle.std.specs.Float.{nan};
ghost use Rattle.std.proofs.Common.{inl, inr};
ghost use Rattle.interleaving.specs.Second.{second_interleaved};
ghost use Rattle.interleaving.specs.Directions.{Directed};

pub trait Direction {
    type Item: Copy;

    ghost none: { Self.Item };

    // Of what is read and what is written: what stands in rows, and what is sent.
    ghost rows: { List Self.Item → List Self.Item → List Self.Item };

    ghost sent: { List Self.Item → List Self.Item → List Self.Item };

    // What is read and what is written, as they stand once step 8 is done.
    ghost seen: { List Self.Item → List Self.Item };

    ghost made: { List Self.Item → List Self.Item };

    // Of a number for what stands in rows and one for what is sent: that for what is read, and that for what is written.
    ghost reads: { ℕ → ℕ → ℕ };

    ghost writes: { ℕ → ℕ → ℕ };

    // Copies one element between a seat among the rows and a place on the other side.
    fn one(from: &[Self::Item], seat: usize, place: usize, to: &mut [Self::Item])
        requires { (reads seat place < length from.now) × (writes seat place < length to.old) }
        ensures { to.new ≡ slice_set to.old (writes seat place) (slice_index_or from.now (reads seat place) none) };

    ghost directed: { Directed rows sent seen made reads writes };
}

// Bits are sent.
pub struct There;

impl Direction for There {
    type Item = u8;

    ghost none = { 0 };

    ghost rows = { λ from to. from };

    ghost sent = { λ from to. to };

    ghost seen = { second_interleaved };

    ghost made = { λ xs. xs };

    ghost reads = { λ seat place. seat };

    ghost writes = { λ seat place. place };

    fn one(from: &[u8], seat: usize, place: usize, to: &mut [u8]) {
        to[place] = from[seat];
    }

    ghost directed = { inl (record { row = refl; other = refl; source = refl; target = refl; read = refl; write = refl }) };
}

// Soft values come back.
pub struct Back;

impl Direction for Back {
    type Item = f32;

    ghost none = { nan };

    ghost rows = { λ from to. to };

    ghost sent = { λ from to. from };

    ghost seen = { λ xs. xs };

    ghost made = { second_interleaved };

    ghost reads = { λ seat place. place };

    ghost writes = { λ seat place. seat };

    fn one(from: &[f32], seat: usize, place: usize, to: &mut [f32]) {
        to[seat] = from[place];
    }

    ghost directed = { inr (record { row = refl; other = refl; source = refl; target = refl; read = refl; write = refl }) };
}
