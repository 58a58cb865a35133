#![tactic(auto)]

// A fit with some of its pairs alone: document 02, P9 and P13.
