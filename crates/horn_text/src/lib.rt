// The definitions of the whole script and of the commands that a task calls for, with their theorems: there is no code here.
#![tactic(auto)]
