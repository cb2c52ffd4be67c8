#![tactic(auto)]

ghost use Rattle.std.specs.Prelude.{◌≡◌, ◌≤◌, pos, neg_ℤ};
ghost use Rattle.sheet.specs.Sizes.{max_count};
ghost use Rattle.limit_value.specs.Tightened.{with_bound, with_high, with_low};

// The limit of a step.
// stays: the form that the request names (docs/DECISIONS.md): a limit by value, which two methods take a high or a low and hand back.
#[derive(Clone, Copy)]
pub struct Limit {
    pub value: i16,
}

impl Limit {
    // The smaller of the limit and a bound.
    fn with_bound(self, bound: i16) -> Limit
        ensures { result ≡ with_bound self bound }
    {
        Limit {
            value: self.value.min(bound),
        }
    }

    // The smaller of the limit and a rule's high.
    pub fn with_high(self, high: u16) -> Limit
        requires { high ≤ max_count }
        ensures { result ≡ with_high self high }
    {
        self.with_bound(signed(high))
    }

    // The smaller of the limit and minus a rule's low.
    pub fn with_low(self, low: u16) -> Limit
        requires { low ≤ max_count }
        ensures { result ≡ with_low self low }
    {
        self.with_bound(minus(low))
    }
}

// stays: functions, here and below: they ask that the number is small, and a `From` can ask nothing.
pub fn signed(x: u16) -> i16
    requires { x ≤ max_count }
    ensures { result ≡ pos x }
{
    x as i16
}

pub fn minus(x: u16) -> i16
    requires { x ≤ max_count }
    ensures { result ≡ neg_ℤ (pos x) }
{
    -(x as i16)
}
