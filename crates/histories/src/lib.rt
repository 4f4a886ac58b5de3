// Histories: the state of a sheet, how each call moves it, and the law of every history.
#![tactic(auto)]
