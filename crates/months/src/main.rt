// Prints each month that stands in a file 01.steps, 02.steps and on, up to the first number that has none.
#![tactic(auto)]

use std::fs;
use std::os::fd::AsRawFd;
use std::rt::Files;

// Two digits: of no more than 99 months.
const MOST_MONTHS: u8 = 99;

// Prints the month of a number, and answers whether there is one. A title that cannot be written
// changes nothing else, as a line that cannot be; println! has written it when it returns, so that
// the lines follow it.
fn print_file(rt: &HostRuntime, n: u8) -> std::io::Result<bool> {
    let path = format!(in rt.alloc(); "{n:02}.steps")?;
    let Ok(file) = fs::open(rt, &path) else {
        return Ok(false);
    };
    let _ = println!(rt; "month {n:02}");
    printout::print_month(file.as_raw_fd());
    Ok(true)
}

fn main(rt: HostRuntime) -> std::io::Result<()> {
    for n in 1..=MOST_MONTHS {
        if !print_file(&rt, n)? {
            break;
        }
    }
    Ok(())
}
