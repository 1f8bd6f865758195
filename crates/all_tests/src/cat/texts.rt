//! Texts that several tests read.

/// The text of the built-in `rc11.cat`.
pub const RC11: &str = "RC11
let sb = po | (IW * (_ \\ IW))
let rb = rf^-1 ; co
let eco = (rf | (co | rb))+
let rel = REL | (ACQ_REL | SC)
let acq = ACQ | (ACQ_REL | SC)
let rs = [W] ; ((sb & loc)? ; ([W & A] ; (rf ; rmw)*))
let sw = [rel] ; (([F] ; sb)? ; (rs ; (rf ; ([R & A] ; ((sb ; [F])? ; [acq])))))
let hb = (sb | sw)+
irreflexive (hb ; eco?) as coherence
empty (rmw & (rb ; co)) as atomicity
acyclic (sb | rf) as no-thin-air
let sbx = sb \\ loc
let scb = sb | ((sbx ; (hb ; sbx)) | ((hb & loc) | (co | rb)))
let fsc = [F & SC]
let base = ([SC] | (fsc ; hb?)) ; (scb ; ([SC] | (hb? ; fsc)))
let fence = fsc ; ((hb | (hb ; (eco ; hb))) ; fsc)
acyclic (base | fence) as sc
let conflict = (((W * M) | (M * W)) & loc) \\ id
let race = conflict \\ ((A * A) | (hb | hb^-1))
flag ~empty race as data-race
";
