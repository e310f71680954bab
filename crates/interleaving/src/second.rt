// Step 8 as a walk over interleaved elements has it: which element each index comes from.
ghost use Rattle.std.specs.Prelude.{◌≡◌, ◌+◌, ◌*◌, ◌≤◌, ◌<◌, get_or};
ghost use Rattle.sheet.specs.Counts.{most_bits};
ghost use Rattle.orders.specs.Orders.{order};
ghost use Rattle.interleaving.specs.Columns.{height};
ghost use Rattle.interleaving.specs.Second.{read_before, comes_from};
ghost use Rattle.interleaving.specs.Turns.{Turned, Seated};

// The column of turn t. The order is lent from a local, for the reason that `orders` gives.
pub fn column_at(columns: &[u8; 30], t: usize) -> usize
    requires { (columns.now ≡ order) × (t < 30) }
    ensures { (result ≡ get_or order t 0) × (result < 30) }
{
    usize::from(columns[t])
}

// How many of n elements column c holds.
fn height_of(n: u64, c: u64) -> u64
    requires { (n ≤ most_bits) × (c < 30) }
    ensures { result ≡ height 30 n c }
{
    (n + 29 - c) / 30
}

// The same of `rows` whole rows and `rest` elements more, where n has been divided once for all columns.
fn height_by(rows: usize, rest: usize, c: usize) -> usize
    requires { (30 * rows + rest ≤ most_bits) × (rest < 30) × (c < 30) }
    ensures { result ≡ height 30 (30 * rows + rest) c }
{
    if c < rest { rows + 1 } else { rows }
}

// The turns of step 8 among n interleaved elements: the column of each, where each begins, and where the last ends.
#[derive(Drop)]
pub struct Turns {
    pub n: usize,
    pub begins: [usize; 31],
    pub columns: [u8; 30],
    pub ghost begun: { Turned n begins },
    pub ghost ordered: { columns ≡ order },
    pub ghost few: { n ≤ most_bits },
}

// The seat of an index of interleaved elements: the turn in which it is read, the element that it comes from, and the turn's end.
#[derive(Clone, Copy)]
pub struct Seat {
    pub turn: usize,
    pub from: usize,
    pub end: usize,
}

impl Turns {
    pub fn of(n: usize) -> Turns
        requires { n ≤ most_bits }
        ensures { result.n ≡ n }
    {
        let columns = orders::columns();
        let rows = n / 30;
        let rest = n % 30;
        let mut begins = [0usize; 31];
        for t in 0..30 {
            begins[t + 1] = begins[t] + height_by(rows, rest, column_at(&columns, t));
        }
        Turns { n, begins, columns }
    }

    // The turn of index k, which is not before turn t.
    fn turn_from(&self, t: usize, k: usize) -> usize
        requires { (t < 30) × (read_before self.now.n t ≤ k) × (k < self.now.n) }
        ensures { (result < 30) × (read_before self.now.n result ≤ k) × (k < read_before self.now.n (result + 1)) }
    {
        let mut r = t;
        while self.begins[r + 1] <= k {
            r += 1;
        }
        r
    }

    // Its seat. A walk goes from seat to seat, so that it looks for none twice.
    pub fn seat_from(&self, t: usize, k: usize) -> Seat
        requires { (t < 30) × (read_before self.now.n t ≤ k) × (k < self.now.n) }
        ensures { Seated self.now.n k result }
    {
        let turn = self.turn_from(t, k);
        Seat {
            turn,
            from: 30 * (k - self.begins[turn]) + column_at(&self.columns, turn),
            end: self.begins[turn + 1],
        }
    }
}

// From where step 8 reads what stands at index j of n: the columns are passed in their order, up to the one that holds it.
pub fn source_at(n: u64, j: u64) -> u64
    requires { (j < n) × (n ≤ most_bits) }
    ensures { (result ≡ comes_from n j) × (result < n) }
{
    let order = orders::columns();
    let mut t: usize = 0;
    let mut c = column_at(&order, t) as u64;
    let mut h = height_of(n, c);
    let mut left = j;
    while h <= left {
        left -= h;
        t += 1;
        c = column_at(&order, t) as u64;
        h = height_of(n, c);
    }
    30 * left + c
}
