// No code: calculations, sets and conditions as document 01 writes them, their meaning, and the lists of terms that hold them.
#![tactic(auto)]
