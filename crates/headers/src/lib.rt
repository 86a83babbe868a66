// Headers and the settings that they ask for: laws that several crates cite. It has no code.
#![tactic(auto)]
