// The rows of a leg's two stops, counted from the trip's first.
ghost use Rattle.std.specs.Prelude.{◌≡◌};
ghost use Rattle.leg_parts.specs.Parts.{ends_of};

#[derive(Clone, Copy)]
pub struct Ends {
    pub board: u32,
    pub alight: u32,
}

// Each offset brought down to the trip's last row, and the two put in order.
#[tactic(auto, unfolding(crate::specs::Parts::ends_of))]
pub fn leg_ends(count: u32, from: u32, to: u32) -> Ends
    ensures { result ≡ ends_of count from to }
{
    let last = count.saturating_sub(1);
    let a = from.min(last);
    let b = to.min(last);
    Ends {
        board: a.min(b),
        alight: a.max(b),
    }
}
