// The threes of tables of a child: where they stand in its roots and its list. prepare and collect use it.
#![tactic(auto)]

pub mod lists;
