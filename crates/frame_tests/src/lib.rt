// Tests of the frame: the limits, the order of the checks, and the worked example.
#![tactic(auto)]

#[cfg(test)]
mod tests;
