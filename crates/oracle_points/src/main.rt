// Runs the sheets of packs whose answers were given by the Rust that the operators come from; README.md beside this says how.
#![tactic(auto)]

fn main() {
    named_reports::report_input();
}
