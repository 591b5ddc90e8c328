// Lists of calls on one and on two controllers, with answers worked out by hand.
#![tactic(auto)]

#[cfg(test)]
mod lists;
