//! Works a script off: reads it from standard input, and prints one answer line for each command.
#![tactic(auto)]

mod desk;
mod failed;
mod sheet;

use desk::Desk;
use replies::reply::Response;
use script::command::Command;
use script::reader::Script;
use sheet::sheet_length;
use std::io::Read;

/// Works all lines off, in order. Those from `book` to the end of the book are worked off together.
fn work_off<'a>(rt: &impl Print, script: &'a Script, desk: &mut Desk<'a>) -> anyhow::Result<()> {
    // A book takes the lines after it, so that no `for` can go over them.
    let mut rest = script.lines.as_slice();
    while let [said, after @ ..] = rest {
        rest = after;
        if let Ok(Command::Book) = said {
            if let Some(banks) = desk.banks() {
                let (sheet, next) = after.split_at(sheet_length(after));
                for response in &desk.work_book(script, banks, sheet)? {
                    print(rt, response)?;
                }
                rest = next;
                continue;
            }
        }
        print(rt, &desk.answer(script, *said)?)?;
    }
    Ok(())
}

/// Prints what a command is answered, as a line.
fn print(rt: &impl Print, response: &Response) -> anyhow::Result<()> {
    // A match: a reply and a denial are two types, each printed by its own.
    match response {
        Ok(reply) => println!(rt; "{reply}")?,
        Err(denied) => println!(rt; "{denied}")?,
    }
    Ok(())
}

fn main(rt: HostRuntime) -> anyhow::Result<()> {
    let mut text = Vec::new(rt.alloc());
    rt.stdin().read_to_end(&mut text)?;
    let script = Script::read(rt.alloc(), text.as_slice())?;
    let mut desk = Desk::new(rt.alloc());
    let result = work_off(&rt, &script, &mut desk);
    desk.end();
    result
}
