//! The world between two script lines, and what each line and each step of building a scene makes of it, in one
//! function a line. There is no working code here: the stage carries out what is defined, and the plain player folds
//! it.
#![tactic(auto)]
