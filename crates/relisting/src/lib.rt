// What shorten writes is entries of the sheet, in a sheet's form: claims in specs/ and theorems in proofs/; the crate results has the code.
#![tactic(auto)]
