// The definitions of what a task's tree and its assertions mean, with the theorem that they mean the same: there is no code here.
#![tactic(auto)]
