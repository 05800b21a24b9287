// One site with jump on costs the whole group the backing: a list of calls in specs/ that shows it, no code.
#![tactic(auto)]
