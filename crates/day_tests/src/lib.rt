// Tests of days of calls over the plain oracle and over jumpers.
#![tactic(auto)]

#[cfg(test)]
mod tests;
