// Cases E, F and G of document 01, run: what each is cut from, what it is cut to, and the new quantities.
#![tactic(auto)]

// Standard output, as the system numbers it.
const STDOUT_FILENO: i32 = 1;

// The numbers of a list, each after a space. Not by `println!`, which would rest the program on one
// more function of the system, `os::c::rattle_errno`.
fn show(numbers: &[u64]) {
    for n in numbers {
        io::write_all(STDOUT_FILENO, b" ");
        io::print_decimal(STDOUT_FILENO, *n);
    }
}

// One case: its letter, the old quantities, the tradeable credits, and the new quantities.
fn case(letter: &[u8], old: &[u64], credits: u64, new: &mut [u64]) {
    io::write_all(STDOUT_FILENO, letter);
    show(old);
    io::write_all(STDOUT_FILENO, b" to ");
    io::print_decimal(STDOUT_FILENO, credits);
    io::write_all(STDOUT_FILENO, b":");
    // Each of the three is shared.
    let _ = share::share(old, credits, new);
    show(new);
    io::write_all(STDOUT_FILENO, b"\n");
}

fn main() {
    let mut three = [0u64; 3];
    let mut two = [0u64; 2];
    case(b"E", &[10, 10, 10], 20, &mut three);
    case(b"F", &[50, 30, 20], 33, &mut three);
    case(b"G", &[30, 20], 0, &mut two);
}
