// All that is claimed, on one page: specs/Claims.antt. The proofs are found from proofs/Claims.antt. Nothing here runs.
#![tactic(auto)]
