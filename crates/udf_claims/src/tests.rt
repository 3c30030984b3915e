ghost use Rattle.std.specs.Prelude.{◌≡◌, ◌+◌, ◌<◌, ◌^◌};

// Worked cases: who wins each block, the first block that is lost, and the walk over what is claimed.
use crate::{Claimed, Claims, NoMemory};
use std::alloc::Global;
use std::test::Fail;
use udf_field::Addr;

// Runs, each by its owner, first block, blocks and class, and who wins the ten blocks: worked out by hand.
const TABLE: &str = "1023 2423 = 11..22....
1033 2333 = 111222....
1063 2223 = 11..11....
1043 2243 = 11..22....
1061 2223 = 111111....
2223 1061 = 111111....
1063 2221 = 112211....
1043 1223 = 1111......
1043 1245 = 111111....
1043 2043 3041 = 3333......
1043 2043 1041 = 1111......
1045 2043 3043 = ..........
1043 2243 3063 = ..........
1043 2203 = 1111......
1013 2113 1213 2313 1053 = 1.1.1.....
1093 2913 = 1111111112
5503 = ..........
6503 = ..........
";

fn digit(byte: u8) -> u8
    ensures { result < 16 }
{
    byte % 16
}

fn block(part: u16, block: u32) -> Addr
    ensures { result.block ≡ block }
{
    Addr { part, block }
}

// The claims of a line, whose first block is this.
fn claims_of(alloc: Global, runs: &str, first: u32) -> Result<Claims, NoMemory>
    requires { first + 10 < 2 ^ 32 }
{
    let mut claims = Claims::new(alloc);
    for run in runs.split_whitespace() {
        if let [owner, at, blocks, class] = run.as_bytes() {
            let (at, blocks) = (digit(*at) as u32, digit(*blocks) as u32);
            if at + blocks <= 10 {
                claims.add(
                    digit(*owner) as u64,
                    block(7, first + at),
                    blocks,
                    digit(*class),
                )?;
            }
        }
    }
    Ok(claims)
}

// Who wins each of ten blocks.
fn draw(text: &mut String, claims: &Claims, first: u32) -> Result<(), NoMemory>
    requires { first + 10 < 2 ^ 32 }
{
    for i in 0u32..10 {
        match claims.winner(block(7, first + i)) {
            Some(owner) => text.push((b'0' + (owner % 10) as u8) as char)?,
            None => text.push('.')?,
        }
    }
    text.push('\n')
}

// A line of the table with the winners that the claims tell.
fn redraw(text: &mut String, alloc: Global, line: &str, first: u32) -> Result<(), NoMemory>
    requires { first + 10 < 2 ^ 32 }
{
    let runs = line.split_once(" = ").map_or(line, |parts| parts.0);
    let claims = claims_of(alloc, runs, first)?;
    text.push_str(runs)?;
    text.push_str(" = ")?;
    draw(text, &claims, first)
}

fn redrawn(alloc: Global, first: u32) -> Result<String, NoMemory>
    requires { first + 10 < 2 ^ 32 }
{
    let mut text = String::new(alloc);
    for line in TABLE.lines() {
        redraw(&mut text, alloc, line, first)?;
    }
    Ok(text)
}

// The first of two blocks that an owner loses, from each of ten blocks on.
fn losses(alloc: Global, claims: &Claims, owner: u64) -> Result<String, NoMemory> {
    let mut text = String::new(alloc);
    for i in 0u32..10 {
        match claims.lost(owner, block(7, i), 2) {
            Some(place) => text.push((b'0' + (place % 10) as u8) as char)?,
            None => text.push('-')?,
        }
    }
    Ok(text)
}

fn push_digit(text: &mut String, number: u32) -> Result<(), NoMemory> {
    text.push((b'0' + (number % 10) as u8) as char)
}

// The next claimed blocks: where they begin, and how many they are.
fn push_stretch(text: &mut String, next: Option<Claimed>) -> Result<(), NoMemory> {
    match next {
        Some(next) => {
            push_digit(text, next.at.block)?;
            push_digit(text, next.blocks)
        }
        None => text.push('-'),
    }
}

// The same from each of eleven blocks on.
fn stretches(alloc: Global, claims: &Claims) -> Result<String, NoMemory> {
    let mut text = String::new(alloc);
    for i in 0u32..11 {
        push_stretch(&mut text, claims.claimed_from(block(7, i)))?;
    }
    Ok(text)
}

// At the first blocks of a part, and at the last ones that a run can hold.
#[test]
fn least_class_wins(rt: HostRuntime) -> Result<(), Fail> {
    assert_eq!(rt; redrawn(rt.alloc(), 0)?.as_str(), TABLE);
    assert_eq!(rt; redrawn(rt.alloc(), 4_294_967_285)?.as_str(), TABLE);
    Ok(())
}

#[test]
fn lost_and_claimed(rt: HostRuntime) -> Result<(), Fail> {
    let claims = claims_of(rt.alloc(), "1063 2243 1421 3913", 0)?;
    assert_eq!(rt; losses(rt.alloc(), &claims, 1)?.as_str(), "-100-10000");
    assert_eq!(rt;
        stretches(rt.alloc(), &claims)?.as_str(),
        "06152433425191919191-"
    );
    let next = claims.claimed_from(block(6, 4_294_967_295));
    assert_eq!(rt;
        next,
        Some(Claimed {
            at: block(7, 0),
            blocks: 6
        })
    );
    Ok(())
}
