// What the judge accepts is a proper writing of one list of sets, and each proper writing is accepted, in specs/. It has no code.
#![tactic(auto)]
