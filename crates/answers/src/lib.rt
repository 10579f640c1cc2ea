// What a published operation answers: a refusal's number alone, or its value; and what it writes. This crate has no function.
#![tactic(auto)]
