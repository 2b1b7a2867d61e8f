// What the calls promise together: specs/Mission.antt, the module to read first. There is no code here.
#![tactic(auto)]
