// The ten examples of the paper's 'Table of proved examples': a theorem over definitions, in specs/Examples.antt. There is no code here.
#![tactic(auto)]
