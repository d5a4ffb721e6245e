// Holds what mirror prints for each example sheet to the text that stands beside it, what quote answers for one to its price, what follow
// answers for the example pairings to what is reasoned, and what import writes for each hierarchy to the sheet beside it.
#![tactic(auto)]

use arrayvec::ArrayVec;
use bvh::import;
use calls::End;
use quote::quote;
use skeleton::{Strays, follow};
use std::rt::Files;
use std::{fs, io};

// Whole sheets and hierarchies, and what is shorter.
type Large = ArrayVec<u8, 65536>;

type Small = ArrayVec<u8, 4096>;

// What a file holds, up to a failure or as much as there is room for; nothing where it cannot be opened.
fn read<const ROOM: usize>(rt: &impl Files, path: &str, bytes: &mut ArrayVec<u8, ROOM>) {
    if let Ok(mut file) = fs::open(rt, path) {
        let _ = io::copy(&mut file, bytes);
    }
}

// A long file and a short one, judged together.
fn judge<F: FnOnce(&[u8], &[u8]) -> bool>(
    rt: &impl Files,
    long: &str,
    short: &str,
    is_so: F,
) -> &'static str
    requires { F.IsAlwaysCallable is_so }
{
    let mut first = Large::new();
    read(rt, long, &mut first);
    let mut second = Small::new();
    read(rt, short, &mut second);
    if is_so(&first, &second) {
        "as expected"
    } else {
        "NOT as expected"
    }
}

// Is the text what mirror prints for a sheet?
fn is_listed(sheet: &[u8], expected: &[u8]) -> bool {
    let mut text = [0u8; 4400];
    let length = listing::list_sheet(sheet, &mut text);
    &text[..length] == expected
}

// Does follow answer that all pairs follow, or how many do not and the lowest of their numbers?
fn is_followed_so(sheet: &[u8], pairing: &[u8], due: Option<(u32, u32)>) -> bool {
    let due = due.map(|(pairs, lowest)| Strays { pairs, lowest });
    follow(sheet, pairing) == Ok(due)
}

// Is the sheet what import writes for a hierarchy?
fn is_imported(text: &[u8], expected: &[u8]) -> bool {
    let mut sheet = [0u8; 2180];
    let written = import(text, &mut sheet);
    written.is_ok_and(|length| sheet.get(..length) == Some(expected))
}

const LISTED: [(&str, &str); 8] = [
    ("row-a.sheet", "row-a.txt"),
    ("row-e.sheet", "row-e.txt"),
    ("row-f.sheet", "row-f.txt"),
    ("row-g.sheet", "row-g.txt"),
    ("fox.sheet", "fox.txt"),
    ("one-sided.sheet", "one-sided.txt"),
    ("refused.sheet", "refused.txt"),
    ("thumb.sheet", "thumb.txt"),
];

// The fox's pairs are each of a left joint and its right one, so all follow. Where a thumb is mirrored to a toe, their parents are a wrist and
// an ankle: joints 5 and 8, and 6 and 7, whose pair is number 7 × 6 ÷ 2 + 6.
const FOLLOWED: [(&str, &str, Option<(u32, u32)>); 2] = [
    ("fox.sheet", "fox.pairing", None),
    ("thumb.sheet", "thumb-to-toe.pairing", Some((2, 27))),
];

const IMPORTED: [(&str, &str); 2] = [
    ("biped.bvh", "biped.sheet"),
    ("quadruped.bvh", "quadruped.sheet"),
];

fn run<R: Print + Files>(rt: &R) -> io::Result<()> {
    for (sheet, text) in LISTED {
        println!(rt; "{sheet}: {}", judge(rt, sheet, text, is_listed))?;
    }
    // The fox has ten pairs: three at 500 cents and seven at 300, less two and a half percent.
    let priced = judge(
        rt,
        "fox.sheet",
        "shop.tariff",
        |sheet, tariff| quote(sheet, b"", tariff, 250) == Ok(End::Paired(3510)),
    );
    println!(rt; "fox.sheet by shop.tariff: {priced}")?;
    for (sheet, pairing, due) in FOLLOWED {
        let followed = judge(
            rt,
            sheet,
            pairing,
            |sheet, pairing| is_followed_so(sheet, pairing, due),
        );
        println!(rt; "{sheet} with {pairing}: {followed}")?;
    }
    for (text, sheet) in IMPORTED {
        println!(rt;
            "{text} to {sheet}: {}",
            judge(rt, text, sheet, is_imported)
        )?;
    }
    Ok(())
}

// A write that fails ends the print, and is passed over: it says nothing of what was compared.
fn main(rt: HostRuntime) {
    let _ = run(&rt);
}
