// Tests of the plain oracle and of jumpers piled on it.
#![tactic(auto)]

#[cfg(test)]
mod tests;
