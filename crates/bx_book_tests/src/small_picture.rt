//! The whole picture of the small plan.

/// Two channels, three calls of which the last is refused, and one price.
pub(crate) const SMALL: &str =
    "<svg xmlns='http://www.w3.org/2000/svg' version='1.1' width='1200' height='376' viewBox='0 0 1200 376'>
<title>The plan of a day</title>
<style>
text{font:12px sans-serif;fill:#222}
.head{font-size:18px;font-weight:bold}
.small{font-size:10px;fill:#555}
.right{text-anchor:end}
.middle{text-anchor:middle}
.lane{fill:#eef1f4}
.hour{stroke:#b9c2cb;stroke-width:.6}
.free,.must{stroke:#16456e;stroke-width:.6;vector-effect:non-scaling-stroke}
.must{stroke:#4a2500}
.free.out{fill:#a5cdf0}
.free.in{fill:url(#free)}
.must.out{fill:#f5a742}
.must.in{fill:url(#must)}
.start{fill:none;stroke:#fff;stroke-width:.7}
.refused{fill:#b5538a}
.prices{fill:#5b9a68}
.edge{fill:none;stroke:#7a8691;stroke-width:.8}
</style>
<defs>
<linearGradient id='free' x1='0' y1='0' x2='0' y2='1'><stop offset='.38' stop-color='#a5cdf0'/><stop offset='.38' stop-color='#16456e'/><stop offset='.62' stop-color='#16456e'/><stop offset='.62' stop-color='#a5cdf0'/></linearGradient>
<linearGradient id='must' x1='0' y1='0' x2='0' y2='1'><stop offset='.38' stop-color='#f5a742'/><stop offset='.38' stop-color='#4a2500'/><stop offset='.62' stop-color='#4a2500'/><stop offset='.62' stop-color='#f5a742'/></linearGradient>
</defs>
<rect width='1200' height='376' fill='#fff'/>
<text class='head' x='56' y='26'>Total 16</text>
<text x='56' y='46'>2 of 3 calls accepted, 1 of them must; 1 refused; channels in service: 2; one more channel would add 5</text>
<svg x='56' y='56' width='28' height='16' viewBox='0 0 28 10' preserveAspectRatio='none'><rect class='must out' x='1' y='1' width='26' height='9'/></svg><text x='90' y='69'>must, outward</text>
<svg x='196' y='56' width='28' height='16' viewBox='0 0 28 10' preserveAspectRatio='none'><rect class='must in' x='1' y='1' width='26' height='9'/></svg><text x='230' y='69'>must, inward</text>
<svg x='336' y='56' width='28' height='16' viewBox='0 0 28 10' preserveAspectRatio='none'><rect class='free out' x='1' y='3' width='26' height='5'/></svg><text x='370' y='69'>free, outward</text>
<svg x='476' y='56' width='28' height='16' viewBox='0 0 28 10' preserveAspectRatio='none'><rect class='free in' x='1' y='3' width='26' height='5'/></svg><text x='510' y='69'>free, inward</text>
<rect class='lane' x='56' y='93' width='1120' height='14'/><text class='small right' x='50' y='104'>2</text>
<rect class='lane' x='56' y='109' width='1120' height='14'/><text class='small right' x='50' y='120'>17</text>
<svg x='56' y='92' width='1120' height='32' viewBox='0 0 86400 20' preserveAspectRatio='none'>
<rect class='free out' x='28800' y='3' width='3600' height='5'><title>row 1: 4930111 pays 7, 8:00:00 to 9:00:00</title></rect>
<rect class='must in' x='30600' y='11' width='4500' height='9'><title>row 2: 4930112 pays 9, 8:30:00 to 9:45:00</title></rect>
</svg>
<path class='start' d='M429.3 93v14M452.6 109v14'/>
<text x='56' y='162'>Refused calls at each moment, 1 at most</text>
<path class='edge' d='M56 168V238H1176'/>
<text class='small right' x='50' y='176'>1</text><text class='small right' x='50' y='238'>0</text>
<svg x='56' y='168' width='1120' height='70' viewBox='0 0 86400 1' preserveAspectRatio='none'>
<path class='refused' d='M0 1H30600V0H36005V1Z'/>
</svg>
<text x='56' y='276'>Prices, summed from midnight on, 5 in all: the seconds of a call cost what the steps rise under it</text>
<path class='edge' d='M56 282V352H1176'/>
<text class='small right' x='50' y='290'>5</text><text class='small right' x='50' y='352'>0</text>
<svg x='56' y='282' width='1120' height='70' viewBox='0 0 86400 5' preserveAspectRatio='none'>
<path class='prices' d='M0 5H30600V0H86400V5Z'/>
</svg>
<path class='hour' d='M56.0 92V124'/>
<path class='hour' d='M56.0 168V238'/>
<path class='hour' d='M56.0 282V352'/>
<text class='small middle' x='56.0' y='87'>0:00</text>
<text class='small middle' x='56.0' y='137'>0:00</text>
<path class='hour' d='M102.6 92V124'/>
<path class='hour' d='M102.6 168V238'/>
<path class='hour' d='M102.6 282V352'/>
<text class='small middle' x='102.6' y='87'>1:00</text>
<text class='small middle' x='102.6' y='137'>1:00</text>
<path class='hour' d='M149.3 92V124'/>
<path class='hour' d='M149.3 168V238'/>
<path class='hour' d='M149.3 282V352'/>
<text class='small middle' x='149.3' y='87'>2:00</text>
<text class='small middle' x='149.3' y='137'>2:00</text>
<path class='hour' d='M196.0 92V124'/>
<path class='hour' d='M196.0 168V238'/>
<path class='hour' d='M196.0 282V352'/>
<text class='small middle' x='196.0' y='87'>3:00</text>
<text class='small middle' x='196.0' y='137'>3:00</text>
<path class='hour' d='M242.6 92V124'/>
<path class='hour' d='M242.6 168V238'/>
<path class='hour' d='M242.6 282V352'/>
<text class='small middle' x='242.6' y='87'>4:00</text>
<text class='small middle' x='242.6' y='137'>4:00</text>
<path class='hour' d='M289.3 92V124'/>
<path class='hour' d='M289.3 168V238'/>
<path class='hour' d='M289.3 282V352'/>
<text class='small middle' x='289.3' y='87'>5:00</text>
<text class='small middle' x='289.3' y='137'>5:00</text>
<path class='hour' d='M336.0 92V124'/>
<path class='hour' d='M336.0 168V238'/>
<path class='hour' d='M336.0 282V352'/>
<text class='small middle' x='336.0' y='87'>6:00</text>
<text class='small middle' x='336.0' y='137'>6:00</text>
<path class='hour' d='M382.6 92V124'/>
<path class='hour' d='M382.6 168V238'/>
<path class='hour' d='M382.6 282V352'/>
<text class='small middle' x='382.6' y='87'>7:00</text>
<text class='small middle' x='382.6' y='137'>7:00</text>
<path class='hour' d='M429.3 92V124'/>
<path class='hour' d='M429.3 168V238'/>
<path class='hour' d='M429.3 282V352'/>
<text class='small middle' x='429.3' y='87'>8:00</text>
<text class='small middle' x='429.3' y='137'>8:00</text>
<path class='hour' d='M476.0 92V124'/>
<path class='hour' d='M476.0 168V238'/>
<path class='hour' d='M476.0 282V352'/>
<text class='small middle' x='476.0' y='87'>9:00</text>
<text class='small middle' x='476.0' y='137'>9:00</text>
<path class='hour' d='M522.6 92V124'/>
<path class='hour' d='M522.6 168V238'/>
<path class='hour' d='M522.6 282V352'/>
<text class='small middle' x='522.6' y='87'>10:00</text>
<text class='small middle' x='522.6' y='137'>10:00</text>
<path class='hour' d='M569.3 92V124'/>
<path class='hour' d='M569.3 168V238'/>
<path class='hour' d='M569.3 282V352'/>
<text class='small middle' x='569.3' y='87'>11:00</text>
<text class='small middle' x='569.3' y='137'>11:00</text>
<path class='hour' d='M616.0 92V124'/>
<path class='hour' d='M616.0 168V238'/>
<path class='hour' d='M616.0 282V352'/>
<text class='small middle' x='616.0' y='87'>12:00</text>
<text class='small middle' x='616.0' y='137'>12:00</text>
<path class='hour' d='M662.6 92V124'/>
<path class='hour' d='M662.6 168V238'/>
<path class='hour' d='M662.6 282V352'/>
<text class='small middle' x='662.6' y='87'>13:00</text>
<text class='small middle' x='662.6' y='137'>13:00</text>
<path class='hour' d='M709.3 92V124'/>
<path class='hour' d='M709.3 168V238'/>
<path class='hour' d='M709.3 282V352'/>
<text class='small middle' x='709.3' y='87'>14:00</text>
<text class='small middle' x='709.3' y='137'>14:00</text>
<path class='hour' d='M756.0 92V124'/>
<path class='hour' d='M756.0 168V238'/>
<path class='hour' d='M756.0 282V352'/>
<text class='small middle' x='756.0' y='87'>15:00</text>
<text class='small middle' x='756.0' y='137'>15:00</text>
<path class='hour' d='M802.6 92V124'/>
<path class='hour' d='M802.6 168V238'/>
<path class='hour' d='M802.6 282V352'/>
<text class='small middle' x='802.6' y='87'>16:00</text>
<text class='small middle' x='802.6' y='137'>16:00</text>
<path class='hour' d='M849.3 92V124'/>
<path class='hour' d='M849.3 168V238'/>
<path class='hour' d='M849.3 282V352'/>
<text class='small middle' x='849.3' y='87'>17:00</text>
<text class='small middle' x='849.3' y='137'>17:00</text>
<path class='hour' d='M896.0 92V124'/>
<path class='hour' d='M896.0 168V238'/>
<path class='hour' d='M896.0 282V352'/>
<text class='small middle' x='896.0' y='87'>18:00</text>
<text class='small middle' x='896.0' y='137'>18:00</text>
<path class='hour' d='M942.6 92V124'/>
<path class='hour' d='M942.6 168V238'/>
<path class='hour' d='M942.6 282V352'/>
<text class='small middle' x='942.6' y='87'>19:00</text>
<text class='small middle' x='942.6' y='137'>19:00</text>
<path class='hour' d='M989.3 92V124'/>
<path class='hour' d='M989.3 168V238'/>
<path class='hour' d='M989.3 282V352'/>
<text class='small middle' x='989.3' y='87'>20:00</text>
<text class='small middle' x='989.3' y='137'>20:00</text>
<path class='hour' d='M1036.0 92V124'/>
<path class='hour' d='M1036.0 168V238'/>
<path class='hour' d='M1036.0 282V352'/>
<text class='small middle' x='1036.0' y='87'>21:00</text>
<text class='small middle' x='1036.0' y='137'>21:00</text>
<path class='hour' d='M1082.6 92V124'/>
<path class='hour' d='M1082.6 168V238'/>
<path class='hour' d='M1082.6 282V352'/>
<text class='small middle' x='1082.6' y='87'>22:00</text>
<text class='small middle' x='1082.6' y='137'>22:00</text>
<path class='hour' d='M1129.3 92V124'/>
<path class='hour' d='M1129.3 168V238'/>
<path class='hour' d='M1129.3 282V352'/>
<text class='small middle' x='1129.3' y='87'>23:00</text>
<text class='small middle' x='1129.3' y='137'>23:00</text>
<path class='hour' d='M1176.0 92V124'/>
<path class='hour' d='M1176.0 168V238'/>
<path class='hour' d='M1176.0 282V352'/>
<text class='small middle' x='1176.0' y='87'>24:00</text>
<text class='small middle' x='1176.0' y='137'>24:00</text>
</svg>
";
