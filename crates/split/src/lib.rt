// The exact split of one room among claims: no nanowatt lost, none made up.

#![tactic(auto)]

ghost use Rattle.std.specs.Prelude.{◌≡◌, ◌*◌, ◌/◌, ◌^◌, ◌<◌, ◌≤◌, true, map, Err, OnOk, nat_le};
ghost use Rattle.std.specs.List.{sum_by, list_all, All};
ghost use Rattle.split.specs.Shares.{extra, with_leftovers, split_of, with_grants};
ghost use Rattle.split.specs.Answer.{allowed, answer, after};
ghost use Rattle.split.specs.Laws.{WholeWhereTheyFit, RoomSpentExactly, NoMoreThanWanted, WithinOneNanowatt, LeftoversInOrder};

use refusals::Refusal;

mod cell_claim;
mod claim;

pub use cell_claim::{CellClaim, DataClaim, SoundingClaim};
pub use claim::Claim;

/// The most that a want or the room may be, in nanowatts: 33 dBm.
pub const MAX_NANOWATTS: u64 = 1_995_262_314;

/// The most claims that one split takes.
pub const MAX_CLAIMS: usize = 8;

/// Whether no claim wants more than the largest power.
fn wants_within<C: Claim>(claims: &[C]) -> bool
    ensures { result ≡ list_all (λ c. nat_le (C.asks c) 1995262314) claims.now }
{
    claims.iter().all(|claim| claim.want() <= MAX_NANOWATTS)
}

/// Whether the claims and the room are within the limits of a split.
#[tactic(auto, using(crate::proofs::Allowed::allowed_claims))]
fn is_allowed<C: Claim>(claims: &[C], room: u64) -> bool
    ensures { result ≡ allowed (map C.asks claims.now) room }
{
    claims.len() <= MAX_CLAIMS && room <= MAX_NANOWATTS && wants_within(claims)
}

/// What the claims want together.
fn total_want<C: Claim>(claims: &[C]) -> u64
    requires { sum_by C.asks claims.now < 2 ^ 64 }
    ensures { result ≡ sum_by C.asks claims.now }
{
    claims.iter().map(|claim| claim.want()).sum()
}

/// A room that is less than what the claims on it want together.
#[derive(Clone, Copy)]
struct Shortage {
    room: u64,
    total: u64,
    ghost limited: { room ≤ 1995262314 },
    ghost short: { room < total },
}

impl Shortage {
    /// What the shares, rounded down, come to.
    fn floor_sum<C: Claim>(&self, claims: &[C]) -> u64
        requires small { All (λ c. C.asks c ≤ 1995262314) claims.now }
        requires fits { sum_by (λ c. C.asks c * self.now.room / self.now.total) claims.now < 2 ^ 64 }
        ensures { result ≡ sum_by (λ c. C.asks c * self.now.room / self.now.total) claims.now }
    {
        claims
            .iter()
            .map(|claim| claim.want() * self.room / self.total)
            .sum()
    }
}

/// Grants each claim what it wants.
fn grant_whole<C: Claim>(claims: &mut [C])
    ensures { claims.new ≡ with_grants C.given claims.old (map C.asks claims.old) }
{
    for claim in claims.iter_mut() {
        let want = claim.want();
        claim.grant(want);
    }
}

/// One nanowatt where the division left a remainder and something is left over, else none.
fn one_more(remainder: u64, leftover: u64) -> u64
    ensures { result ≡ extra remainder leftover }
{
    u64::from(remainder > 0 && leftover > 0)
}

/// Grants each claim its share of the room, and what is left over one by one, in order, where a share was rounded.
fn grant_shares<C: Claim>(claims: &mut [C], shortage: &Shortage, leftover: u64)
    requires { All (λ c. C.asks c ≤ 1995262314) claims.old }
    ensures { claims.new ≡ with_grants C.given claims.old (with_leftovers shortage.now.room shortage.now.total leftover (map C.asks claims.old)) }
{
    let mut left = leftover;
    for claim in claims.iter_mut() {
        let scaled = claim.want() * shortage.room;
        let more = one_more(scaled % shortage.total, left);
        claim.grant(scaled / shortage.total + more);
        left -= more;
    }
}

/// Grants each claim what it wants where the wants fit the room, and else its share.
// Claims and room stay apart: the claims are lent and changed, the room is a number.
fn grant_room<C: Claim>(claims: &mut [C], room: u64)
    requires { allowed (map C.asks claims.old) room ≡ true }
    ensures { claims.new ≡ with_grants C.given claims.old (split_of (map C.asks claims.old) room) }
{
    let total = total_want(claims);
    if total <= room {
        grant_whole(claims);
    } else {
        let shortage = Shortage { room, total };
        let leftover = room - shortage.floor_sum(claims);
        grant_shares(claims, &shortage, leftover);
    }
}

/// Splits a room among claims. Refused, with the claims as they were, where there are more than eight claims or a number is above the largest power.
pub fn split<C: Claim>(claims: &mut [C], room: u64) -> Result<(), Refusal>
    ensures answers { result ≡ answer (map C.asks claims.old) room }
    ensures leaves { claims.new ≡ after C.asks C.given claims.old room }
    ensures refused_changes_nothing { (e : Refusal) → result ≡ Err e → claims.new ≡ claims.old }
    ensures wants_kept { map C.asks claims.new ≡ map C.asks claims.old }
    ensures grants { OnOk result (map C.holds claims.new ≡ split_of (map C.asks claims.old) room) }
    ensures whole_where_they_fit { OnOk result (WholeWhereTheyFit (map C.asks claims.old) room (map C.holds claims.new)) }
    ensures room_spent_exactly { OnOk result (RoomSpentExactly (map C.asks claims.old) room (map C.holds claims.new)) }
    ensures no_more_than_wanted { OnOk result (NoMoreThanWanted (map C.asks claims.old) room (map C.holds claims.new)) }
    ensures within_one_nanowatt { OnOk result (WithinOneNanowatt (map C.asks claims.old) room (map C.holds claims.new)) }
    ensures leftovers_in_order { OnOk result (LeftoversInOrder (map C.asks claims.old) room (map C.holds claims.new)) }
{
    if !is_allowed(claims, room) {
        return Err(Refusal::OutOfRange);
    }
    grant_room(claims, room);
    Ok(())
}
