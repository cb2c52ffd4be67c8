#![tactic(auto)]

ghost use Rattle.std.specs.Prelude.{◌≡◌, ◌≤◌};
ghost use Rattle.network.specs.Table.{max_boundaries};
ghost use Rattle.plan_rooms.specs.Rooms.{lent, decide_rooms, seat_rooms, seat_lengths, plan_lent, decide_lent, seat_lent, seats_fit, lengths_fit};

// The lengths of the rooms for seats and narrowed windows.
#[derive(Clone, Copy)]
pub struct Seats {
    pub plan: usize,
    pub earliest: usize,
    pub latest: usize,
}

impl Seats {
    // Those of these rooms.
    fn of(plan: &[u16], earliest: &[u16], latest: &[u16]) -> Seats
        ensures { result ≡ seat_lengths plan.now earliest.now latest.now }
    {
        Seats {
            plan: plan.len(),
            earliest: earliest.len(),
            latest: latest.len(),
        }
    }

    // Question 12, of these rooms.
    fn fit(self, units: usize) -> bool
        ensures { result ≡ seats_fit units self }
    {
        units <= self.plan && units <= self.earliest && units <= self.latest
    }
}

// The lengths of the rooms that a call lends: the table's, and, where it lends them, those for seats and the ring's.
#[derive(Clone, Copy)]
pub struct Lengths {
    pub table: usize,
    pub seats: Option<Seats>,
    pub ring: Option<usize>,
}

// Those of planning's rooms.
pub fn for_plan(
    table: &[i16],
    plan: &[u16],
    earliest: &[u16],
    latest: &[u16],
    ring: &[u16],
) -> Lengths
    ensures { result ≡ plan_lent (lent table.now plan.now earliest.now latest.now ring.now) }
{
    let seated = for_seats(table, plan, earliest, latest);
    Lengths {
        ring: Some(ring.len()),
        ..seated
    }
}

// Those of deciding's rooms.
pub fn for_decision(table: &[i16], ring: &[u16]) -> Lengths
    ensures { result ≡ decide_lent (decide_rooms table.now ring.now) }
{
    Lengths {
        table: table.len(),
        seats: None,
        ring: Some(ring.len()),
    }
}

// Those of seating's rooms.
pub fn for_seats(table: &[i16], plan: &[u16], earliest: &[u16], latest: &[u16]) -> Lengths
    ensures { result ≡ seat_lent (seat_rooms table.now plan.now earliest.now latest.now) }
{
    Lengths {
        table: table.len(),
        seats: Some(Seats::of(plan, earliest, latest)),
        ring: None,
    }
}

// Question 12, of the rooms that the call lends.
pub fn rooms_fit(w: usize, units: usize, rooms: Lengths) -> bool
    requires { w ≤ max_boundaries }
    ensures { result ≡ lengths_fit w units rooms }
{
    let seats_fit = rooms.seats.is_none_or(|seats| seats.fit(units));
    let ring_fits = rooms.ring.is_none_or(|ring| w <= ring);
    w * w <= rooms.table && seats_fit && ring_fits
}
