// Shares one subframe under both holding rules and prints all of it, line by line.

#![tactic(auto)]

use anyhow::anyhow;
use levels::Level;
use sharing::{
    Aligned, Budget, Full, Group, HoldingRule, PerGroup, Rank, Shares, Sharing, ranked, share,
};

/// The total on the label, in tenths of a dBm.
const TOTAL: i32 = 230;

const MASTER_PERCENTAGE: u32 = 50;

const SECONDARY_PERCENTAGE: u32 = 50;

/// What each group wants in classes 1 to 4, in nanowatts.
const WANTS: [PerGroup<u64>; 4] = [
    PerGroup {
        master: 0,
        secondary: 158_489_319,
    },
    PerGroup::NONE,
    PerGroup {
        master: 20_000_000,
        secondary: 0,
    },
    PerGroup::NONE,
];

fn main(rt: HostRuntime) -> anyhow::Result<()> {
    run(&rt)
}

fn run(rt: &HostRuntime) -> anyhow::Result<()> {
    let level = Level::from_tenths(TOTAL);
    let total = level.nanowatts();
    let Ok(budget) = Budget::new(total, MASTER_PERCENTAGE, SECONDARY_PERCENTAGE) else {
        return Err(anyhow!("the total or the percentages are refused"));
    };
    let ranks = ranked(&WANTS);
    println!(rt;
        "One subframe of two cell groups, shared under two holding rules. Powers in nanowatts (nW)."
    )?;
    print_budget(rt, level, &budget.shares)?;
    print_wants(rt, &ranks)?;
    print_terms(rt)?;
    print_sharing(
        rt,
        "Aligned rule: a group reserves what it wants of its guarantee.",
        &Aligned,
        &budget,
        ranks,
    )?;
    print_sharing(
        rt,
        "Full rule: a group reserves its whole guarantee, because its rival does not know its want.",
        &Full,
        &budget,
        ranks,
    )
}

// Each print function takes just what it prints; a struct of all of it would hide that.

fn print_budget(rt: &HostRuntime, level: Level, shares: &Shares) -> anyhow::Result<()> {
    let decibels = level.tenths() / 10;
    let tenth = level.tenths() % 10;
    let total = shares.total;
    println!(rt; "")?;
    println!(rt; "Total: {decibels}.{tenth} dBm = {total}")?;
    let master = shares.guarantees.master;
    println!(rt;
        "Guarantee of the master group:    {total} x {MASTER_PERCENTAGE} / 100 = {master}"
    )?;
    let secondary = shares.guarantees.secondary;
    println!(rt;
        "Guarantee of the secondary group: {total} x {SECONDARY_PERCENTAGE} / 100 = {secondary}"
    )?;
    Ok(())
}

fn print_wants(rt: &HostRuntime, ranks: &[Rank; 8]) -> anyhow::Result<()> {
    println!(rt; "")?;
    println!(rt; "Wants in order of rank, the lowest last")?;
    for rank in ranks {
        let class = rank.class.number();
        let group = rank.group;
        let want = rank.want;
        println!(rt; "  class {class}  {group:<9}  {want:>9}")?;
    }
    Ok(())
}

/// The words that the lines below use.
fn print_terms(rt: &HostRuntime) -> anyhow::Result<()> {
    println!(rt; "")?;
    println!(rt;
        "Room at a rank: the total, less what the own group has, less the larger of what the rival has and its reserve."
    )?;
    println!(rt; "A want that fits the room is granted whole; any other gets the room exactly.")?;
    println!(rt;
        "Rival claim: the larger of the rival's reserve and of its wants that rank ahead of the group's lowest want."
    )?;
    println!(rt;
        "A group is met exactly where it wants at most its guarantee, or its want and the rival claim fit the total."
    )?;
    Ok(())
}

fn print_sharing<R: HoldingRule>(
    rt: &HostRuntime,
    title: &str,
    rule: &R,
    budget: &Budget,
    ranks: [Rank; 8],
) -> anyhow::Result<()> {
    let mut ranks = ranks;
    let Ok(sharing) = share(rule, budget, PerGroup::NONE, &mut ranks) else {
        return Err(anyhow!("the wants are refused"));
    };
    println!(rt; "")?;
    println!(rt; "{title}")?;
    print_ranks(rt, &budget.shares, sharing.demand.reserves, &ranks)?;
    print_verdict(rt, &budget.shares, &sharing, Group::Master)?;
    print_verdict(rt, &budget.shares, &sharing, Group::Secondary)
}

/// The room and the grant at each rank, with the sum that makes the room.
fn print_ranks(
    rt: &HostRuntime,
    shares: &Shares,
    reserves: PerGroup<u64>,
    ranks: &[Rank; 8],
) -> anyhow::Result<()> {
    let total = shares.total;
    let master = reserves.master;
    let secondary = reserves.secondary;
    println!(rt; "  Reserves: master {master}, secondary {secondary}")?;
    let mut granted = PerGroup::NONE;
    for rank in ranks {
        let class = rank.class.number();
        let group = rank.group;
        let own = granted.of(rank.group);
        let rival = rank.group.rival();
        let kept = granted.of(rival).max(reserves.of(rival));
        let room = rank.room;
        let want = rank.want;
        let grant = rank.granted;
        println!(rt;
            "  class {class}  {group:<9}  room {total} - {own:>9} - {kept:>9} = {room:>9}  want {want:>9}  granted {grant:>9}"
        )?;
        granted = PerGroup {
            master: granted
                .master
                .saturating_add(Group::Master.own(rank.group, grant)),
            secondary: granted
                .secondary
                .saturating_add(Group::Secondary.own(rank.group, grant)),
        };
    }
    Ok(())
}

/// Whether a group was met or rightly cut, and why.
fn print_verdict(
    rt: &HostRuntime,
    shares: &Shares,
    sharing: &Sharing,
    group: Group,
) -> anyhow::Result<()> {
    let total = shares.total;
    let guarantee = shares.guarantees.of(group);
    let wanted = sharing.demand.wanted.of(group);
    let granted = sharing.granted.of(group);
    let claim = sharing.demand.claims.of(group);
    let both = wanted.saturating_add(claim);
    println!(rt; "  Group {group}: wanted {wanted}, granted {granted}")?;
    if wanted <= guarantee {
        println!(rt; "    met: it wants at most its guarantee, {wanted} <= {guarantee}")?;
    } else if sharing.demand.fits(*shares, group) {
        println!(rt;
            "    met: its want and the rival claim fit the total, {wanted} + {claim} = {both} <= {total}"
        )?;
    } else {
        println!(rt; "    rightly cut: it wants more than its guarantee, {wanted} > {guarantee},")?;
        println!(rt;
            "    and its want and the rival claim pass the total, {wanted} + {claim} = {both} > {total};"
        )?;
        println!(rt; "    it gets at least its guarantee, {granted} >= {guarantee}")?;
    }
    Ok(())
}
