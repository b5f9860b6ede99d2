// The lines of an answer, one fact to a line.
use instruction::{Section, Sizes};
use model::{Pack, Role};
use std::io;
use valuations::valuations;

// The roles behind the resets, in the order of a record.
const OTHERS: [Role; 4] = [Role::Start, Role::Invariant, Role::Transition, Role::Urgent];

fn print_sizes(rt: &impl Print, sizes: &Sizes) -> io::Result<()> {
    print!(rt; "variables")?;
    for count in sizes.counts() {
        print!(rt; " {count}")?;
    }
    println!(rt; "\nclocks {}", sizes.clocks)?;
    println!(rt; "valuations {}", valuations(sizes))
}

// Where a formula lies: its section, the position of its first byte, and its length.
fn print_formula(rt: &impl Print, pack: &Pack<'_>, role: Role) -> io::Result<()> {
    let Some(part) = pack.formula(role) else {
        return Ok(());
    };
    let section = u8::from(Section::from(role));
    println!(rt;
        "section {section} position {} length {}",
        part.at,
        part.code.len()
    )
}

// What a record holds, in its own order.
pub(super) fn print_pack(rt: &impl Print, pack: &Pack<'_>) -> io::Result<()> {
    println!(rt; "accepted")?;
    let sizes = &pack.model.sizes;
    print_sizes(rt, sizes)?;
    let resets = (0..sizes.clocks).map(|clock| Role::Reset(clock));
    for role in resets.chain(OTHERS) {
        print_formula(rt, pack, role)?;
    }
    Ok(())
}
