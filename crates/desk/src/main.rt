// The ledger program: step records on standard input, their answers and the settlement on standard output.
#![tactic(auto)]

// Standard input, as the system numbers it.
const STDIN_FILENO: i32 = 0;

fn main() {
    printout::print_month(STDIN_FILENO);
}
