#![tactic(auto)]

ghost use Rattle.std.specs.Prelude.{◌≡◌, ℕ, ◌+◌, ◌*◌, ◌<◌, ◌≤◌, length, get_or};
ghost use Rattle.lists.specs.Values.{Filled};
ghost use Rattle.network.specs.Table.{max_boundaries};
ghost use Rattle.plan_marks.specs.Marks.{slot, seen, seen_at, Units, Marked, Reads};

// From where slots are counted: as they are, or from the end, where slot x of w boundaries is w - x.
#[derive(Clone, Copy)]
pub enum Side {
    Front,
    End,
}

impl Side {
    // A slot as this side has it.
    fn slot(self, w: usize, x: u16) -> usize
        requires { x ≤ w }
        ensures { result ≡ seen self w x }
    {
        let slot = x as usize;
        match self {
            Side::Front => slot,
            Side::End => w - slot,
        }
    }

    // The place of a window's mark.
    fn place(self, w: usize, opens: u16, closes: u16) -> usize
        requires { (opens ≤ w) × (closes ≤ w) × (seen self w opens < w) × (seen self w closes < w) × (w ≤ max_boundaries) }
        ensures { result ≡ seen self w opens * w + seen self w closes }
    {
        self.slot(w, opens) * w + self.slot(w, closes)
    }
}

// Marks each unit's window with the unit's slot.
pub fn mark(side: Side, w: usize, opens: &[u16], closes: &[u16], plan: &[u16], marks: &mut [u16])
    requires units { Units side w opens.now closes.now plan.now }
    requires room { (w ≤ max_boundaries) × (w * w ≤ length marks.old) × ((i : ℕ) → get_or marks.old i 0 ≡ 0) }
    ensures { Marked (length opens.now) w (seen_at side w opens.now) (seen_at side w closes.now)
        (seen_at side w plan.now) marks.new }
{
    // stays: places of three lists, in `read_marks` too; a `zip` of zips hands out nested pairs, which is no plainer.
    for j in 0..opens.len() {
        let at = side.place(w, opens[j], closes[j]);
        marks[at] = side.slot(w, plan[j]) as u16;
    }
}

// Each unit's cut, as its window's mark has it.
pub fn read_marks(
    side: Side,
    w: usize,
    opens: &[u16],
    closes: &[u16],
    marks: &[u16],
    out: &mut [u16],
)
    requires closes_len { (length closes.now ≡ length opens.now) × (length opens.now ≤ length out.old) × (w ≤ max_boundaries) × (w * w ≤ length marks.now) }
    requires by_index { (j : ℕ) → j < length opens.now → Reads side w opens.now closes.now marks.now j }
    ensures { Filled (λ j. seen side w (slot w marks.now (seen_at side w opens.now j)
        (seen_at side w closes.now j))) (length opens.now) out.old out.new }
{
    for j in 0..opens.len() {
        let at = side.place(w, opens[j], closes[j]);
        out[j] = side.slot(w, marks[at]) as u16;
    }
}
